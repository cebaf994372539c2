// The C entries, a module for each group in the order in which data flows; `./library` writes them all to one archive, which include/torvaskin.h declares. A slice is a pointer
// and its length; the 17 counters, a reader's 19 words and its staged bytes, and what a reader of files has beside them are one pointer each; a struct of numbers crosses by value.
#![tactic(auto)]

mod files;
mod listings;
mod lookups;
mod numbers;
mod overlays;
mod readers;
mod readings;
mod records;
