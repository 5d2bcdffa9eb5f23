use star::Star;

/// A vertex's star as it was at some moment, with the number of the last commit that had touched the vertex then.
#[derive(Drop)]
pub struct Look {
    pub star: Star,
    pub stamp: u64,
}
