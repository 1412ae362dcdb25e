//! The tests of images that are held and kept, and of their files.
//!
//! - `bytes`: reads of bytes that are held, and of a file that returns few bytes at a time, is
//!   interrupted, ends or fails.
//! - `kept`: what is kept of an image whose file returns few bytes at a time, ends or fails.
//! - `checked`: what is kept of an image, checked and read like the image itself.
//! - `files`: real files that are opened, each in its own way, and read by two threads.
#![tactic(auto)]

#[cfg(test)]
mod bytes;
#[cfg(test)]
mod checked;
#[cfg(test)]
mod files;
#[cfg(test)]
mod kept;
