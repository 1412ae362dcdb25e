//! The tests of `reply_pool`, of single answers and of `draw_board` for what no contract can say.
//!
//! Which numbers make a plan (`plans`), rounds of jobs by any plan (`batches`), a batch that is
//! held until others have come (`gates`), callers' own threads that share a board (`threads`),
//! single answers and their moves (`answers`), what one thread draws through one hand or two and
//! what several threads draw (`draws`, `drawing`), and each request for memory refused in turn
//! (`memory`). They share the table of the sample image (`tables`) and the requests of a stream
//! (`jobs`), and are a crate of their own, since they start threads and wait for them.
#![tactic(auto)]

#[cfg(test)]
mod tests;
