mod plain;
mod plans;
mod round;
mod table;
mod walk;
