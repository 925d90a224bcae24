ghost use Rattle.std.specs.Prelude.{◌≡◌, ◌≤◌, length, take, drop};

pub fn before<T>(items: &[T], at: usize) -> &[T]
    requires { at ≤ length items.now }
    ensures { result.now ≡ take at items.now }
{
    &items[..at]
}

pub fn after<T>(items: &[T], at: usize) -> &[T]
    requires { at ≤ length items.now }
    ensures { result.now ≡ drop at items.now }
{
    &items[at..]
}
