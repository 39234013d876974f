// The smaller and the larger of two numbers.
ghost use Rattle.std.specs.Prelude.{◌≡◌, min, max};

pub fn smaller(x: usize, y: usize) -> usize
    ensures { result ≡ min x y }
{
    x.min(y)
}

pub fn larger(x: usize, y: usize) -> usize
    ensures { result ≡ max x y }
{
    x.max(y)
}
