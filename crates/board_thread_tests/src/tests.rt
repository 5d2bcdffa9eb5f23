mod making;
mod many;
mod threads;
