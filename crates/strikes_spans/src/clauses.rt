// Gathered clauses, and how many there are.
ghost use Rattle.std.specs.Prelude.{◌≡◌, ◌≤◌, length};
ghost use Rattle.rules.specs.Book.{gather_size, most_rules, clauses_ok};

use papers::State;

// What `rules` gathers: the first `count` clauses of `rows`.
#[derive(Drop)]
pub struct Clauses<'a> {
    pub rows: &'a [State],
    pub count: usize,
    ghost long: { length rows.now ≡ gather_size },
    ghost few: { count ≤ most_rules },
}

impl Clauses<'_> {
    // Whether s makes all clauses true.
    pub fn fits(&self, s: State) -> bool
        ensures { result ≡ clauses_ok self.now.rows.now self.now.count s }
    {
        rules::fits(self.rows, self.count, s)
    }
}
