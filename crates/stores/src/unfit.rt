// A store that is not made hands the memory back that it was to be made over.
use model::fault::Fault;

#[derive(Drop)]
pub struct Unfit<M> {
    pub fault: Fault,
    pub memory: M,
}
