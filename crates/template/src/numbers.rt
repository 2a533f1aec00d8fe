// A number of a template: so many bytes of text stand before it, and it is the position plus an offset.
#[derive(Clone, Copy)]
pub struct Number {
    pub bytes: usize,
    pub offset: usize,
}

// What stands where no number was drawn yet.
pub const NO_NUMBER: Number = Number {
    bytes: 0,
    offset: 0,
};
