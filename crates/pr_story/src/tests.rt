mod build;
mod compare;
mod journals;
mod line;
mod replay;
mod scripts;
mod shown;
