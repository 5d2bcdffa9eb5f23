mod making;
mod plain;
mod random;
mod worked;
