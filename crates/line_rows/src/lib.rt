// Lines as Unicode breaks them, counted over chunks: the routes of the module `lines` of `str_indices`.
#![tactic(auto)]

mod near;
pub mod routes;
mod row;
pub mod up_to;
