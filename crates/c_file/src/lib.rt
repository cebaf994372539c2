// A file's reader as C holds it, in words beside those of a reader of events.
#![tactic(auto)]

ghost use Rattle.std.specs.Prelude.{◌≡◌, ◌<◌, map, cond, eqb};
ghost use Rattle.little.specs.Little.{value};
ghost use Rattle.xml_chars.specs.Chars.{bytes_in};
ghost use Rattle.markup_tags.specs.References.{letters_in, reference_for};
ghost use Rattle.markup_tags.specs.StartTags.{mark_for, start_tag_for};
ghost use Rattle.markup_tags.specs.EndTags.{end_tag_for};
ghost use Rattle.markup_skipped.specs.Comments.{comment_for};
ghost use Rattle.markup_skipped.specs.Declarations.{key_for, last_for, value_key, value_letters, declaration_for};
ghost use Rattle.markup_skipped.specs.Instructions.{target_letters, instruction_for};
ghost use Rattle.markup_skipped.specs.declared.declarations.DeclarationPlace.TheVariants.{Keyword};
ghost use Rattle.markup_steps.specs.Held.{markup_for};
ghost use Rattle.file_lexer.specs.Held.{where_of};
ghost use Rattle.c_file.specs.Words.{before_word, mark_word, key_word, last_word, place_among, value_word, reference_words, start_tag_words, end_tag_words, comment_words};
ghost use Rattle.c_file.specs.Words.{declaration_words, instruction_words, markup_words, words_of_file};
ghost use Rattle.c_file.specs.Words.{before_in, all_letters, letters_of, targets, target_in, value_in, key_in, last_in, mark_in, start_tag_in, end_tag_in, comment_in};
ghost use Rattle.c_file.specs.Words.{instruction_in, declaration_in, markup_in};
ghost use Rattle.c_file.specs.Words.{detailed, chars_in, chars_coded, if_coded, place_in, place_coded, file_of_words};

use file_lexer::{Before, FilePlace, Lexer};
use markup_skipped::comments::CommentPlace;
use markup_skipped::declarations::{DeclarationKey, DeclarationPlace, ValueLetters};
use markup_skipped::instructions::{InstructionPlace, TargetLetters};
use markup_steps::MarkupPlace;
use markup_tags::end_tags::EndTagPlace;
use markup_tags::references::{EntityLetters, ReferencePlace};
use markup_tags::start_tags::{QuoteMark, StartTagPlace};
use xml_chars::{CharBytes, is_begun};

// How many words it takes.
pub const FILE_WORDS: usize = 7;

// What the words stand for: where the reader stands in its file, and how many bytes the name of the open element has.
#[derive(Clone, Copy, PartialEq, Eq, Debug)]
pub struct FileWords {
    pub lexer: Lexer,
    pub named: usize,
}

// ---- words read back

// How many numbers places have, from 0, which stands between markups.
const PLACES: usize = 34;

// The largest of the two words beside each number.
const FIRST_MOST: [u64; PLACES] = [
    4, 1, 0, 1, 0, 0, 0, 1, 1, 1, 1, 1, 1, 1, 0, 0, 0, 0, 0, 0, 1, 0, 1, 1, 0, 1, 3, 6, 7, 9, 2, 2,
    1, 0,
];

const SECOND_MOST: [u64; PLACES] = [
    0, 0, 0, 0, 0, 0, 0, 1, 0, 13, 0, 0x10ffff, 0, 0x10ffff, 0, 0, 0, 0, 0, 0, 0, 0, 0, 6, 0, 0, 1,
    0, 0, 0, 0, 0, 15, 0,
];

// Whether a number is one of a place, and the words beside it are within what that place has.
fn is_detailed(number: u64, first: u64, second: u64) -> bool
    ensures { result ≡ detailed number first second }
{
    if number <= 33 {
        let place = number as usize;
        (first <= FIRST_MOST[place]) & (second <= SECOND_MOST[place])
    } else {
        false
    }
}

fn before_of(word: u8) -> Before
    ensures { result ≡ before_in word }
{
    match word {
        0 => Before::Nothing,
        1 => Before::MarkFirst,
        2 => Before::MarkSecond,
        3 => Before::Mark,
        _ => Before::Text,
    }
}

// The letters of an entity's name by their number; a word past the last names the first.
fn letters_of(word: u32) -> EntityLetters
    ensures { result ≡ letters_of word }
{
    match word {
        1 => EntityLetters::Am,
        2 => EntityLetters::Amp,
        3 => EntityLetters::Ap,
        4 => EntityLetters::Apo,
        5 => EntityLetters::Apos,
        6 => EntityLetters::L,
        7 => EntityLetters::Lt,
        8 => EntityLetters::G,
        9 => EntityLetters::Gt,
        10 => EntityLetters::Q,
        11 => EntityLetters::Qu,
        12 => EntityLetters::Quo,
        13 => EntityLetters::Quot,
        _ => EntityLetters::A,
    }
}

fn target_of(word: u32) -> TargetLetters
    ensures { result ≡ target_in word }
{
    match word {
        0 => TargetLetters::X,
        1 => TargetLetters::Xm,
        2 => TargetLetters::Xml,
        3 => TargetLetters::UpperX,
        4 => TargetLetters::UpperXm,
        5 => TargetLetters::UpperXml,
        _ => TargetLetters::Other,
    }
}

fn value_of(word: u32) -> ValueLetters
    ensures { result ≡ value_in word }
{
    match word {
        0 => ValueLetters::Version0,
        1 => ValueLetters::Version1,
        2 => ValueLetters::Version2,
        3 => ValueLetters::Version3,
        4 => ValueLetters::Encoding0,
        5 => ValueLetters::Encoding1,
        6 => ValueLetters::Encoding2,
        7 => ValueLetters::Encoding3,
        8 => ValueLetters::Encoding4,
        9 => ValueLetters::Encoding5,
        10 => ValueLetters::Standalone0,
        11 => ValueLetters::Y,
        12 => ValueLetters::Ye,
        13 => ValueLetters::Yes,
        14 => ValueLetters::N,
        _ => ValueLetters::No,
    }
}

fn key_of(word: u8) -> DeclarationKey
    ensures { result ≡ key_in word }
{
    match word {
        0 => DeclarationKey::Version,
        1 => DeclarationKey::Encoding,
        _ => DeclarationKey::Standalone,
    }
}

fn last_of(word: u8) -> Option<DeclarationKey>
    ensures { result ≡ last_in word }
{
    if word == 0 {
        None
    } else {
        Some(key_of(word - 1))
    }
}

fn mark_of(word: u8) -> QuoteMark
    ensures { result ≡ mark_in word }
{
    if word == 0 {
        QuoteMark::Double
    } else {
        QuoteMark::Single
    }
}

// A place in a start tag, by its number behind that of the first.
#[tactic(auto, unfolding(crate::specs::Words::start_tag_in))]
fn start_tag_of(index: u64, first: u8, second: u32) -> StartTagPlace
    ensures { result ≡ start_tag_in index first second }
{
    let mark = mark_of(first);
    match index {
        0 => StartTagPlace::Name,
        1 => StartTagPlace::Behind(first == 1),
        2 => StartTagPlace::AttributeName,
        3 => StartTagPlace::BehindAttributeName,
        4 => StartTagPlace::BehindEqualsSign,
        5 => StartTagPlace::Value(mark, second == 1),
        6 => StartTagPlace::Reference(mark, ReferencePlace::Ampersand),
        7 => StartTagPlace::Reference(mark, ReferencePlace::Entity(letters_of(second))),
        8 => StartTagPlace::Reference(mark, ReferencePlace::Hash),
        9 => StartTagPlace::Reference(mark, ReferencePlace::Decimal(second)),
        10 => StartTagPlace::Reference(mark, ReferencePlace::HexBegun),
        11 => StartTagPlace::Reference(mark, ReferencePlace::Hex(second)),
        _ => StartTagPlace::Slash,
    }
}

#[tactic(auto, unfolding(crate::specs::Words::end_tag_in))]
fn end_tag_of(index: u64) -> EndTagPlace
    ensures { result ≡ end_tag_in index }
{
    match index {
        0 => EndTagPlace::Slash,
        1 => EndTagPlace::Name,
        _ => EndTagPlace::Behind,
    }
}

#[tactic(auto, unfolding(crate::specs::Words::comment_in))]
fn comment_of(index: u64, first: u8) -> CommentPlace
    ensures { result ≡ comment_in index first }
{
    match index {
        0 => CommentPlace::Bang,
        1 => CommentPlace::Hyphen,
        2 => CommentPlace::Inside(first == 1),
        _ => CommentPlace::TwoHyphens,
    }
}

#[tactic(auto, unfolding(crate::specs::Words::instruction_in))]
fn instruction_of(index: u64, first: u8, second: u32) -> InstructionPlace
    ensures { result ≡ instruction_in index first second }
{
    match index {
        0 => InstructionPlace::Question(first == 1),
        1 => InstructionPlace::Target(first == 1, target_of(second)),
        2 => InstructionPlace::BehindTarget,
        _ => InstructionPlace::Data(first == 1),
    }
}

#[tactic(auto, unfolding(crate::specs::Words::declaration_in))]
fn declaration_of(index: u64, first: u8, second: u32) -> DeclarationPlace
    ensures { result ≡ declaration_in index first second }
{
    match index {
        0 => DeclarationPlace::Between(last_of(first), second == 1),
        1 => DeclarationPlace::Keyword(DeclarationKey::Version, first),
        2 => DeclarationPlace::Keyword(DeclarationKey::Encoding, first),
        3 => DeclarationPlace::Keyword(DeclarationKey::Standalone, first),
        4 => DeclarationPlace::BehindKeyword(key_of(first)),
        5 => DeclarationPlace::EqualsSign(key_of(first)),
        6 => DeclarationPlace::Value(mark_of(first), value_of(second)),
        _ => DeclarationPlace::Behind,
    }
}

// A place in a markup, by its number.
#[tactic(auto, unfolding(crate::specs::Words::markup_in))]
fn markup_of(number: u64, first: u8, second: u32) -> MarkupPlace
    ensures { result ≡ markup_in number first second }
{
    if number <= 1 {
        MarkupPlace::Begun(first == 1)
    } else if number <= 14 {
        MarkupPlace::StartTag(start_tag_of(number - 2, first, second))
    } else if number <= 17 {
        MarkupPlace::EndTag(end_tag_of(number - 15))
    } else if number <= 21 {
        MarkupPlace::Bang(comment_of(number - 18, first))
    } else if number <= 25 {
        MarkupPlace::Instruction(instruction_of(number - 22, first, second))
    } else {
        let declaration = declaration_of(number - 26, first, second);
        MarkupPlace::Instruction(InstructionPlace::Declaration(declaration))
    }
}

// The bytes that a word holds, the first the lowest.
fn chars_in(word: u64) -> CharBytes
    requires { word < 16777216 }
    ensures { result ≡ chars_in word }
{
    if word == 0 {
        CharBytes::None
    } else if word < 256 {
        CharBytes::One(word as u8)
    } else if word < 65536 {
        CharBytes::Two((word % 256) as u8, (word / 256) as u8)
    } else {
        CharBytes::Three(
            (word % 256) as u8,
            (word / 256 % 256) as u8,
            (word / 65536) as u8,
        )
    }
}

// The bytes so far of a character in a word, if it begins with them.
fn chars_of(word: u64) -> Option<CharBytes>
    ensures { result ≡ if_coded (chars_coded word) (chars_in word) }
{
    if word < 16777216 {
        let chars = chars_in(word);
        is_begun(chars).then_some(chars)
    } else {
        None
    }
}

fn place_of(number: u64, first: u64, second: u64, chars: u64) -> Option<FilePlace>
    ensures { result ≡ if_coded (place_coded number first second chars) (place_in number first second chars) }
{
    if is_detailed(number, first, second) {
        let first = first as u8;
        let second = second as u32;
        if number == 0 {
            return (chars == 0).then_some(FilePlace::Text(before_of(first)));
        }
        let chars = chars_of(chars)?;
        return Some(FilePlace::Markup(markup_of(number, first, second), chars));
    }
    None
}

// What words stand for, if they are a file reader's.
pub fn file_of(words: &[u64; FILE_WORDS]) -> Option<FileWords>
    ensures { result ≡ file_of_words words.now }
{
    let place = place_of(words[0], words[1], words[2], words[3])?;
    let lexer = Lexer {
        place,
        feeds: words[4],
        used: words[5] as usize,
    };
    Some(FileWords {
        lexer,
        named: words[6] as usize,
    })
}

// ---- a file's reader in words

// The number of a place, and the two words beside it.
#[derive(Clone, Copy, PartialEq, Eq, Debug)]
struct PlaceWords {
    number: u64,
    first: u64,
    second: u64,
}

fn coded(number: u64, first: u64, second: u64) -> PlaceWords
    ensures { result ≡ record { number = number; first = first; second = second } }
{
    PlaceWords {
        number,
        first,
        second,
    }
}

fn before_word(before: Before) -> u64
    ensures { result ≡ before_word before }
{
    before as u64
}

#[tactic(auto, unfolding(crate::specs::Words::place_among, base::specs::Bytes::same, base::specs::Bytes::both))]
fn letters_word(letters: EntityLetters) -> u64
    ensures { result ≡ place_among (map letters_in all_letters) (letters_in letters) }
{
    letters as u64
}

#[tactic(auto, unfolding(crate::specs::Words::place_among, base::specs::Bytes::same, base::specs::Bytes::both))]
fn target_word(letters: TargetLetters) -> u64
    ensures { result ≡ place_among (map target_letters targets) (target_letters letters) }
{
    letters as u64
}

#[tactic(auto, unfolding(crate::specs::Words::place_among, base::specs::Bytes::same, base::specs::Bytes::both))]
fn value_word(letters: ValueLetters) -> u64
    ensures { result ≡ value_word (value_key letters) (value_letters letters) }
{
    letters as u64
}

fn key_word(key: DeclarationKey) -> u64
    ensures { result ≡ key_word (key_for key) }
{
    key as u64
}

fn last_word(last: Option<DeclarationKey>) -> u64
    ensures { result ≡ last_word (last_for last) }
{
    match last {
        None => 0,
        Some(key) => 1 + key_word(key),
    }
}

fn mark_word(mark: QuoteMark) -> u64
    ensures { result ≡ mark_word (mark_for mark) }
{
    mark as u64
}

fn reference_words(mark: u64, place: ReferencePlace) -> PlaceWords
    ensures { result ≡ reference_words mark (reference_for place) }
{
    match place {
        ReferencePlace::Ampersand => coded(8, mark, 0),
        ReferencePlace::Entity(letters) => coded(9, mark, letters_word(letters)),
        ReferencePlace::Hash => coded(10, mark, 0),
        ReferencePlace::Decimal(v) => coded(11, mark, u64::from(v)),
        ReferencePlace::HexBegun => coded(12, mark, 0),
        ReferencePlace::Hex(v) => coded(13, mark, u64::from(v)),
    }
}

fn start_tag_words(place: StartTagPlace) -> PlaceWords
    ensures { result ≡ start_tag_words (start_tag_for place) }
{
    match place {
        StartTagPlace::Name => coded(2, 0, 0),
        StartTagPlace::Behind(spaced) => coded(3, spaced as u64, 0),
        StartTagPlace::AttributeName => coded(4, 0, 0),
        StartTagPlace::BehindAttributeName => coded(5, 0, 0),
        StartTagPlace::BehindEqualsSign => coded(6, 0, 0),
        StartTagPlace::Value(mark, returned) => coded(7, mark_word(mark), returned as u64),
        StartTagPlace::Reference(mark, place) => reference_words(mark_word(mark), place),
        StartTagPlace::Slash => coded(14, 0, 0),
    }
}

fn end_tag_words(place: EndTagPlace) -> PlaceWords
    ensures { result ≡ end_tag_words (end_tag_for place) }
{
    match place {
        EndTagPlace::Slash => coded(15, 0, 0),
        EndTagPlace::Name => coded(16, 0, 0),
        EndTagPlace::Behind => coded(17, 0, 0),
    }
}

fn comment_words(place: CommentPlace) -> PlaceWords
    ensures { result ≡ comment_words (comment_for place) }
{
    match place {
        CommentPlace::Bang => coded(18, 0, 0),
        CommentPlace::Hyphen => coded(19, 0, 0),
        CommentPlace::Inside(hyphen) => coded(20, hyphen as u64, 0),
        CommentPlace::TwoHyphens => coded(21, 0, 0),
    }
}

// A keyword, and how many of its letters are still to come.
fn keyword_words(key: DeclarationKey, to_come: u8) -> PlaceWords
    ensures { result ≡ declaration_words (declaration_for (Keyword key to_come)) }
{
    match key {
        DeclarationKey::Version => coded(27, u64::from(to_come.min(6)), 0),
        DeclarationKey::Encoding => coded(28, u64::from(to_come.min(7)), 0),
        DeclarationKey::Standalone => coded(29, u64::from(to_come.min(9)), 0),
    }
}

fn declaration_words(place: DeclarationPlace) -> PlaceWords
    ensures { result ≡ declaration_words (declaration_for place) }
{
    match place {
        DeclarationPlace::Between(last, spaced) => coded(26, last_word(last), spaced as u64),
        DeclarationPlace::Keyword(key, to_come) => keyword_words(key, to_come),
        DeclarationPlace::BehindKeyword(key) => coded(30, key_word(key), 0),
        DeclarationPlace::EqualsSign(key) => coded(31, key_word(key), 0),
        DeclarationPlace::Value(mark, letters) => {
            coded(32, mark_word(mark), value_word(letters))
        }
        DeclarationPlace::Behind => coded(33, 0, 0),
    }
}

fn instruction_words(place: InstructionPlace) -> PlaceWords
    ensures { result ≡ instruction_words (instruction_for place) }
{
    match place {
        InstructionPlace::Question(first) => coded(22, first as u64, 0),
        InstructionPlace::Target(first, letters) => coded(23, first as u64, target_word(letters)),
        InstructionPlace::BehindTarget => coded(24, 0, 0),
        InstructionPlace::Data(question) => coded(25, question as u64, 0),
        InstructionPlace::Declaration(place) => declaration_words(place),
    }
}

#[tactic(auto, unfolding(crate::specs::Words::markup_words))]
fn markup_words(place: MarkupPlace) -> PlaceWords
    ensures { result ≡ markup_words (markup_for place) }
{
    match place {
        MarkupPlace::Begun(first) => coded(1, first as u64, 0),
        MarkupPlace::StartTag(place) => start_tag_words(place),
        MarkupPlace::EndTag(place) => end_tag_words(place),
        MarkupPlace::Bang(place) => comment_words(place),
        MarkupPlace::Instruction(place) => instruction_words(place),
    }
}

#[tactic(auto, unfolding(little::specs::Little::value))]
fn chars_word(chars: CharBytes) -> u64
    ensures { result ≡ value (bytes_in chars) }
{
    match chars {
        CharBytes::None => 0,
        CharBytes::One(a) => u64::from(a),
        CharBytes::Two(a, b) => u64::from(a) + 256 * u64::from(b),
        CharBytes::Three(a, b, c) => { u64::from(a) + 256 * (u64::from(b) + 256 * u64::from(c)) }
    }
}

// Its words.
#[tactic(auto, unfolding(crate::specs::Words::words_of_file))]
pub fn put_file(words: &mut [u64; FILE_WORDS], file: FileWords)
    ensures { words.new ≡ words_of_file (where_of file.lexer.place) file.lexer.feeds file.lexer.used file.named }
{
    let FileWords { lexer, named } = file;
    let (place, chars) = match lexer.place {
        FilePlace::Text(before) => (coded(0, before_word(before), 0), 0),
        FilePlace::Markup(place, chars) => (markup_words(place), chars_word(chars)),
    };
    *words = [
        place.number,
        place.first,
        place.second,
        chars,
        lexer.feeds,
        lexer.used as u64,
        named as u64,
    ];
}
