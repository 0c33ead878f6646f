mod angles;
mod circuits;
mod statements;
mod tokens;
