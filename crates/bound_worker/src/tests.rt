mod instances;
mod worked;
