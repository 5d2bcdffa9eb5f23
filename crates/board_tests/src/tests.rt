mod hostile;
mod making;
mod worked;
