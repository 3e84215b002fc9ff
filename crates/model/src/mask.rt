// Rights are numbered 0 to 15, and a set of them is a mask with bit r for right r.
ghost use Rattle.std.specs.Prelude.{◌≡◌, ℕ, not, ◌&&◌, ◌||◌, ◌==◌, nat_lt, bit_or, IsTrue, MatchOption, ◌↔◌};
ghost use Rattle.model.specs.Lowest.{Lowest};
ghost use Rattle.model.specs.Masks.{has, with_right, without_right, Within, Outside};

pub type Right = u8;

pub type Mask = u16;

// How many rights there are.
pub const RIGHTS: Right = 16;

// Whether `right` is in the set. A right that does not exist is in no set.
pub fn holds(mask: Mask, right: Right) -> bool
    ensures { result ≡ has mask right }
{
    right < RIGHTS && (mask >> right) & 1 == 1
}

// The set with `right` in it. A right that does not exist can't be put into one.
#[tactic(auto, using(crate::proofs::Rights::entered, crate::proofs::Rights::with_over, crate::proofs::Rights::with_has))]
pub fn with_right(mask: Mask, right: Right) -> Mask
    ensures value { result ≡ with_right mask right }
    ensures rights { (q : ℕ) → has result q ≡ (has mask q || (q == right && nat_lt right 16)) }
{
    if right < RIGHTS {
        mask | 1 << right
    } else {
        mask
    }
}

// The set without `right`.
#[tactic(auto, using(crate::proofs::Rights::taken, crate::proofs::Rights::without_over, crate::proofs::Rights::kept_over, crate::proofs::Rights::without_has))]
pub fn without_right(mask: Mask, right: Right) -> Mask
    ensures value { result ≡ without_right mask right }
    ensures rights { (q : ℕ) → has result q ≡ (has mask q && not (q == right)) }
{
    if right < RIGHTS {
        mask & !(1 << right)
    } else {
        mask
    }
}

// The set of the rights of either.
#[tactic(auto, using(crate::proofs::Containing::joined_has))]
pub fn joined(m: Mask, n: Mask) -> Mask
    ensures value { result ≡ bit_or m n }
    ensures rights { (q : ℕ) → has result q ≡ (has m q || has n q) }
{
    m | n
}

// Whether every right of `m` is one of `n`.
pub fn is_within(m: Mask, n: Mask) -> bool
    ensures { IsTrue result ↔ Within m n }
{
    m & n == m
}

// Whether `m` has the right and `n` does not.
fn lacks(m: Mask, n: Mask, right: Right) -> bool
    ensures { result ≡ (has m right && not (has n right)) }
{
    holds(m, right) && !holds(n, right)
}

// The lowest right of `m` that is none of `n`, where there is one. Most often there is none, which one comparison tells.
pub fn outside(m: Mask, n: Mask) -> Option<Right>
    ensures { MatchOption result (Within m n) (Lowest (Outside m n)) }
{
    if is_within(m, n) {
        return None;
    }
    first_outside(m, n)
}

// The same, right by right.
fn first_outside(m: Mask, n: Mask) -> Option<Right>
    ensures { MatchOption result (Within m n) (Lowest (Outside m n)) }
{
    for right in 0..RIGHTS {
        if lacks(m, n, right) {
            return Some(right);
        }
    }
    None
}
