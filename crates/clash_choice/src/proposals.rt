// Step rules chosen by their numbers (document 02, order 5): whether numbers are a proposal, and the marks of proposed rules and of the
// first rules. Rules are numbered from 1 in sheet order; rule i + 1 has mark i.
ghost use Rattle.std.specs.Prelude.{◌≡◌, ◌≤◌};
ghost use Rattle.clash_choice.specs.Proposals.{most_rules, first_marks, marks_of, Proposal, ProposalSays};

use super::RULES;

// Whether numbers rise strictly and are all numbers of step rules, from 1 to `count`.
pub fn is_proposal(rules: &[u32], count: u32) -> bool
    ensures { ProposalSays count rules.now result }
{
    let mut above: u32 = 0;
    for number in rules {
        let number = *number;
        if number <= above {
            return false;
        }
        if count < number {
            return false;
        }
        above = number;
    }
    true
}

// The marks of proposed rules.
pub fn mark(rules: &[u32]) -> [u8; RULES]
    requires { Proposal most_rules rules.now }
    ensures { result ≡ marks_of rules.now }
{
    let mut marks = [0u8; RULES];
    for number in rules {
        marks[*number as usize - 1] = 1;
    }
    marks
}

// Marks the first `count` rules, all others being unmarked.
pub fn mark_first(marks: &mut [u8; RULES], count: usize)
    requires { (count ≤ most_rules) × (marks.old ≡ first_marks 0) }
    ensures { marks.new ≡ first_marks count }
{
    marks[..count].fill(1);
}
