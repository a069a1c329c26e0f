// How many rows stand in each table. They stay apart from the bytes, which are written: a plan speaks of all five tables
// (`PlansStore`, `PlansLoad`, `PlansKey`), and a run takes the counts along by value.
#[derive(Clone, Copy)]
pub struct Counts {
    pub changes: usize,
    pub fetched: usize,
    pub reads: usize,
    pub writes: usize,
    pub paid: usize,
}
