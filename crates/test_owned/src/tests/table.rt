//! The table of rows, which is built on the typed face.

// A row by its id, group and value, also in a constant.
macro_rules! row {
    ($id:expr, $group:expr, $value:expr) => {
        Row {
            id: $id,
            group: $group,
            value: $value,
        }
    };
}

mod budgets;
mod refusals;
mod rows;
