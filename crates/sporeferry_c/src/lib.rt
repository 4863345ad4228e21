// What C calls: include/sporeferry.h declares it. Each function is that of the crate `sporeferry`.
#![tactic(auto)]

mod files;
mod meshes;
mod octrees;
