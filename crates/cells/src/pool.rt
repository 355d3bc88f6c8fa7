// The free cells: the number of the first, whose `left` names the next, and how many there are.
// They are chained in themselves: there is no memory but what is lent.
#[derive(Clone, Copy)]
pub struct Pool {
    pub head: u32,
    pub free: u32,
}
