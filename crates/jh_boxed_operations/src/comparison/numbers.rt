ghost use Rattle.std.specs.Prelude.{◌≡◌};
ghost use Rattle.std.specs.Ordering.{int_eq};

pub fn numbers_are_one(left: &i64, right: &i64) -> bool
    ensures { result ≡ int_eq left.now right.now }
{
    *left == *right
}
