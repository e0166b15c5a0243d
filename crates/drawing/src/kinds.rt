// The kinds of tape lines.
#[derive(Clone, Copy)]
pub enum Kind {
    Masks,
    Dealer,
}
