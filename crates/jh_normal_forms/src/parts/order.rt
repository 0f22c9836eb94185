/// Which of two parts comes first where one stands inside the other.
#[derive(Clone, Copy, PartialEq, Eq)]
pub enum Order {
    OuterFirst,
    InnerFirst,
}
