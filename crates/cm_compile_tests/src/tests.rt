mod compiled;
mod differences;
mod messages;
mod skeletons;
