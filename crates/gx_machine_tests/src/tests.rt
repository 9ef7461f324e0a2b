//! Lineages, and the logs of clusters that compute their blocks.

mod clusters;
mod lineages;
mod support;
