// What both checkers answer: a bad sheet's number and place as the reader tells them, else 0 or 14 for the paper.
ghost use Rattle.std.specs.Prelude.{◌≡◌};
ghost use Rattle.papers.specs.Paper.{on_paper};

use answers::{DONE, NOT_ACCEPTED};
pub use reader::Verdict;

// What a checker says of a paper on a good sheet, which has no place.
pub fn on_paper(accepted: bool) -> Verdict
    ensures { result ≡ on_paper accepted }
{
    let answer = if accepted { DONE } else { NOT_ACCEPTED };
    Verdict { answer, place: 0 }
}
