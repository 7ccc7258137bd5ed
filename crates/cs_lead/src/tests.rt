mod bases;
mod closes;
mod fields;
mod logs;
mod packets;
mod requests;
mod steps;
mod trees;
