// A comment, behind its `<!`.

ghost use Rattle.std.specs.Prelude.{◌≡◌, true, cond};
ghost use Rattle.markup.specs.Automaton.{behind_bang, behind_bang_hyphen, in_comment, behind_two_hyphens, comment_step};
ghost use Rattle.markup_skipped.specs.Comments.{comment_for, comment_moved};

use crate::Moved;
use markup_tags::chars::is_xml_char;

// Where in a comment a reader stands: behind `<!`, behind `<!-`, inside, where the test says that a hyphen stands before, and behind two hyphens.
#[derive(Clone, Copy, PartialEq, Eq, Debug)]
pub enum CommentPlace {
    Bang,
    Hyphen,
    Inside(bool),
    TwoHyphens,
}

fn bang_step(c: u32) -> Moved<CommentPlace>
    ensures { comment_moved result ≡ comment_step behind_bang c }
{
    if c == 0x2d {
        Moved::Continues(CommentPlace::Hyphen)
    } else {
        Moved::Malformed
    }
}

fn hyphen_step(c: u32) -> Moved<CommentPlace>
    ensures { comment_moved result ≡ comment_step behind_bang_hyphen c }
{
    if c == 0x2d {
        Moved::Continues(CommentPlace::Inside(false))
    } else {
        Moved::Malformed
    }
}

// A hyphen inside a comment. "For compatibility, the string `--` MUST NOT occur within comments": two of them end it.
fn inside_hyphen(hyphen: bool) -> CommentPlace
    ensures { comment_for result ≡ cond hyphen behind_two_hyphens (in_comment true) }
{
    if hyphen {
        CommentPlace::TwoHyphens
    } else {
        CommentPlace::Inside(true)
    }
}

fn inside_step(hyphen: bool, c: u32) -> Moved<CommentPlace>
    ensures { comment_moved result ≡ comment_step (in_comment hyphen) c }
{
    if c == 0x2d {
        Moved::Continues(inside_hyphen(hyphen))
    } else if is_xml_char(c) {
        Moved::Continues(CommentPlace::Inside(false))
    } else {
        Moved::Malformed
    }
}

fn two_hyphens_step(c: u32) -> Moved<CommentPlace>
    ensures { comment_moved result ≡ comment_step behind_two_hyphens c }
{
    if c == 0x3e {
        Moved::Completes
    } else {
        Moved::Malformed
    }
}

// A character more of a comment: production 15.
pub fn comment_step(place: CommentPlace, c: u32) -> Moved<CommentPlace>
    ensures { comment_moved result ≡ comment_step (comment_for place) c }
{
    match place {
        CommentPlace::Bang => bang_step(c),
        CommentPlace::Hyphen => hyphen_step(c),
        CommentPlace::Inside(hyphen) => inside_step(hyphen, c),
        CommentPlace::TwoHyphens => two_hyphens_step(c),
    }
}
