// A new disc, as a setup file describes it.
use disc::Header;

#[derive(Clone, Copy, Debug, PartialEq, Eq)]
pub struct Setup {
    pub header: Header,
    // How many blocks each journal has.
    pub journal: usize,
}
