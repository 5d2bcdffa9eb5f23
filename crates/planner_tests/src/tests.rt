mod answering;
mod candidates;
mod compared;
mod drawing;
mod making;
mod moments;
mod regions;
mod worked;
