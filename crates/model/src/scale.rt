// A scale is the finite domain of an attribute with the relation "covers" on it.
ghost use Rattle.std.specs.Prelude.{◌≡◌, ℕ, ◌≤◌, Bool, ◌&&◌, nat_lt};

pub trait Scale {
    // How many values there are; they are the numbers below it. Clauses name the ghost member, and the check compares the
    // two numbers.
    const COUNT: u8;

    ghost COUNT: { ℕ };

    ghost covering: { ℕ → ℕ → Bool };

    // Whether both are values and the first covers the second.
    fn covers(a: u8, b: u8) -> bool
        ensures { result ≡ (nat_lt a COUNT && (nat_lt b COUNT && covering a b)) };

    ghost some: { 1 ≤ COUNT };

    ghost few: { COUNT ≤ 16 };
}
