mod points;
mod refusals;
