//! Tests over the public calls of the lower crates, with values from outside.
mod captures;
mod checks;
mod drafts;
mod dumps;
mod frames;
mod heads;
mod instants;
mod scenario_files;
mod shelves;
mod tagged_frames;
mod tee;
mod toxic_files;
mod toxics;
mod written_headers;
