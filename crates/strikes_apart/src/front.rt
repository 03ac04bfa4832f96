// A paper's first states, and what is known of the paper.
ghost use Rattle.std.specs.Prelude.{◌≡◌, true, ◌≤◌, length};
ghost use Rattle.strikes_apart.specs.Apart.{Different};

use papers::{Part, State};

// The first m states of a paper. `distinct` may be true only if none of the paper's stands twice, and makes counting quicker.
#[derive(Drop)]
pub struct Front<S: Part<State>> {
    pub states: S,
    pub m: usize,
    pub distinct: bool,
    ghost within: { m ≤ length (S.items states) },
    ghost different: { distinct ≡ true → Different (S.items states) },
}
