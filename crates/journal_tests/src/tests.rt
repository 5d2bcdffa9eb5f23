mod applied;
mod making;
mod random;
