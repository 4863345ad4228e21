// A digest: one number for all that a call answered and left.
ghost use Rattle.std.specs.Prelude.{◌≡◌, ℕ, map};
ghost use Rattle.tape.specs.Digest.{mixed, digest_of};

// A number more.
pub fn number(digest: u64, n: u64) -> u64
    ensures { result ≡ mixed digest n }
{
    ((digest % 4_294_967_291) * 2_654_435_761 + n % 4_294_967_291) % 4_294_967_291
}

// An entry of a table that is digested: a byte, a word, a long word. Its number is itself; of `Into<u64>` a clause could not name it.
pub trait Entry: Copy {
    ghost itself: { Self → ℕ };

    fn number(self) -> u64
        ensures { result ≡ itself self };
}

impl Entry for u8 {
    ghost itself = { λ x. x };

    fn number(self) -> u64 {
        u64::from(self)
    }
}

impl Entry for u32 {
    ghost itself = { λ x. x };

    fn number(self) -> u64 {
        u64::from(self)
    }
}

impl Entry for u64 {
    ghost itself = { λ x. x };

    fn number(self) -> u64 {
        self
    }
}

// A table more.
pub fn entries<T: Entry>(digest: u64, table: &[T]) -> u64
    ensures { result ≡ digest_of digest (map T.itself table.now) }
{
    let mut d = digest;
    for x in table {
        d = number(d, x.number());
    }
    d
}
