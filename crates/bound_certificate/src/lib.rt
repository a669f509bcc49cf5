//! Certificates: the text that shows that a portfolio is within a gap of the least cost.
#![tactic(auto)]

mod certificate;
mod due;
mod face_read;
mod face_write;
mod fault;
mod item;
mod laws;
mod lent_leaf;
mod limits;
mod line;
mod line_step;
mod long_line;
mod near;
mod packed;
mod part;
mod reader;
mod row;
mod seen;
mod tail;
mod taken;
mod text_reading;
mod vector_room;
mod version;
mod weighing;
mod write;

pub use certificate::{Buy, Buys, Certificate, copied_buys};
pub use face_read::{read_cert, read_packed};
pub use face_write::{unpack, write_cert};
pub use fault::{CertError, CertFault, FaultKind};
pub use item::{Fed, Item};
pub use laws::{certificate_laws, packed_text_laws, text_laws};
pub use limits::{GREATEST_GAP, MOST_BUYS, MOST_DATES, MOST_NODES, MOST_PACKED_BUYS, MOST_VECTORS};
pub use packed::{Change, Changes, Packed, PackedNode, PackedNodes, Vectors};
pub use reader::CertReader;
pub use write::write_packed;
