/// How many questions of validity were asked, and how many of them have yes and no for an answer.
#[derive(Clone, Copy, Debug, PartialEq, Eq)]
pub struct Summary {
    pub asked: u64,
    pub yes: u64,
    pub no: u64,
}
