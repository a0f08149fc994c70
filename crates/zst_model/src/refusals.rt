pub mod apply_fault;
pub mod faults;
pub mod plan_fault;
pub mod refusal;
pub mod stream_fault;
pub mod subjects;
pub mod text;
