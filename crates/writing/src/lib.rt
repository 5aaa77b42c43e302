// What the search writes into lent buffers: the records of a sheet, the bytes of a map, and zeros over a table.
#![tactic(auto)]

pub mod maps;
pub mod records;
pub mod tables;
