mod names;
mod queries;
mod statements;
mod tokens;
mod trees;
mod values;
