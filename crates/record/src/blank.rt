// Whether the items of a row are blank from a position on: nothing is said in any of them.
ghost use Rattle.std.specs.Prelude.{◌≡◌, Bool, drop, eqb};
ghost use Rattle.figures.specs.Figures.{every};

// An item of a row, of which nothing may be said.
pub trait Blank {
    ghost blank: { Self → Bool };

    // By reference, since the items of some rows are large.
    fn says_nothing(&self) -> bool
        ensures { result ≡ blank self.now };
}

// A slot of a name that holds no letter is 0.
impl Blank for u8 {
    ghost blank = { λ b. eqb b 0 };

    fn says_nothing(&self) -> bool {
        *self == 0
    }
}

// The items from number `from` on are blank.
pub fn are_blank_from<T: Blank>(items: &[T], from: usize) -> bool
    ensures { result ≡ every T.blank (drop from items.now) }
{
    items.iter().skip(from).all(|item| item.says_nothing())
}
