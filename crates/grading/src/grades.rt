// The grades of a plan file, with the scope's numbers.
#[derive(Clone, Copy, Debug, PartialEq, Eq)]
pub enum Grade {
    Best = 1,
    Valid = 2,
}
