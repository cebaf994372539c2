// The line that the program prints in place of the listing: `refused⇥NUMBER⇥LINE⇥HELD`.
#![tactic(auto)]

ghost use Rattle.std.specs.Prelude.{◌≡◌, [], ◌∷◌};
ghost use Rattle.print.specs.Print.{tab, line_pieces};
ghost use Rattle.print.specs.Piece.{whole_over};
ghost use Rattle.print.specs.Printer.{Prints};
ghost use Rattle.roadlist_report.specs.Report.{held_field, refused_fields, refused_line};

use print::{Escaped, Integer, Printable, Printer};
use refusal::{Refusal, Reply};

// A tab and HELD: the known version for 12, else `-`.
fn put_held(printer: &mut Printer<'_>, refusal: Refusal)
    ensures { Prints (tab ∷ held_field refusal ∷ []) printer.old printer.new }
{
    match refusal {
        Refusal::Regression(known) => printer.put(&Integer::from(known)),
        _ => printer.put(&Escaped(b"-")),
    }
}

// The line of a refusal, at so many lines.
#[derive(Clone, Copy, PartialEq, Eq, Debug)]
struct RefusedLine {
    refusal: Refusal,
    line: u64,
}

impl Printable for RefusedLine {
    ghost pieces = { λ refused. line_pieces (refused_fields refused.refusal refused.line) };

    fn print(&self, printer: &mut Printer<'_>) {
        let reply = Reply::from(self.refusal);
        printer.put_bytes(b"refused");
        printer.put(&u64::from(reply.number));
        printer.put(&self.line);
        put_held(printer, self.refusal);
        printer.put_bytes(b"\n");
    }
}

// The line at the start of what is lent, where it fits: its length. Else nothing is written.
pub fn put_refused(out: &mut [u8], refusal: Refusal, line: u64) -> Option<usize>
    ensures { record { out = out.new; length = result } ≡ whole_over out.old (refused_line refusal line) }
{
    print::print_whole(&RefusedLine { refusal, line }, out)
}
