//! Arrays on disks in memory: stops, failed calls of the disk, a change of the half, and images that are wrong.

mod images;
mod lines;
mod serving;
mod switches;
mod writes;
