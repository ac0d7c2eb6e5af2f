// A line by its form, whatever it asks for.
ghost use Rattle.std.specs.Prelude.{◌≤◌};

// A letter and numbers, the first `count` of the values: no line wants more than six. An array with a count, as a vector would not be
// Copy.
#[derive(Clone, Copy)]
pub struct Form {
    pub letter: u8,
    pub count: usize,
    pub values: [u64; 6],
    ghost few: { count ≤ 6 },
}
