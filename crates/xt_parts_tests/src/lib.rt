//! Tests of the layers below the mount, and of the texts and devices, over their public calls: there is nothing else here.
#![tactic(auto)]

#[cfg(test)]
mod contents;
#[cfg(test)]
mod devices;
#[cfg(test)]
mod files;
#[cfg(test)]
mod items;
#[cfg(test)]
mod legs;
#[cfg(test)]
mod lines;
#[cfg(test)]
mod replies;
#[cfg(test)]
mod seals;
#[cfg(test)]
mod space;
#[cfg(test)]
mod texts;
#[cfg(test)]
mod vectors;
