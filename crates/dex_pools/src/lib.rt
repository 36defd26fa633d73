//! The tables of strings, types, protos, fields and methods, and the values and annotations that name their entries:
//! read, written and numbered anew.
//!
//! [`read_pools`] answers exactly the tables that the bytes spell (`specs/Spelled.antt`), and each fault names the place
//! that `specs/Tables.antt` gives it. Values and annotations are read as `specs/Value.antt` and `specs/Marks.antt` say,
//! each number below the size of its table, and written in the fewest bytes (`specs/Written.antt`).
//! [`Interner::collect`] numbers exactly the entries that the written program needs, in the order of the format
//! (`specs/Used.antt`, `specs/Numbering.antt`, `specs/Interned.antt`).
#![tactic(auto)]

mod classes;
mod close;
mod fault;
mod few;
mod header;
mod interner;
mod items;
mod marks;
mod members;
mod numbering;
mod order;
mod pools;
mod protos;
mod scalar;
mod strings;
mod types;
mod used;
mod value;
mod walk;
mod word;
mod write;

pub use fault::{PoolFault, Table};
pub use interner::{Interner, Order};
pub use items::{read_type_list, take_counted};
pub use marks::{
    read_annotations, read_annotations_counted, read_parameter_annotations, read_value,
    read_value_counted,
};
pub use pools::{Pools, read_pools, read_pools_counted};
pub use scalar::TableSizes;
pub use write::{write_annotation, write_value};
