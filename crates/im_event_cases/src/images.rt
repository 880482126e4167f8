//! The files that a crash leaves, read.

use crate::words::octets;
use crate::wrong::Wrong;
use im_machine::images::Image;
use std::alloc::Global;

/// The files of these words, the octets of one a word, from file 0 on.
pub fn image(alloc: Global, text: &str) -> Result<Image, Wrong> {
    let mut files = Vec::new(alloc);
    for word in text.split(' ') {
        files.push(octets(alloc, word)?)?;
    }
    Ok(Image::from_vec(files))
}
