mod certificates;
mod compared;
mod floors;
mod instances;
mod loads;
mod plain;
mod starts;
